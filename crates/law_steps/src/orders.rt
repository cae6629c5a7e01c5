// The orders in which a list may be kept.
ghost use Rattle.std.specs.Cmp.{IsTotalOrder};
ghost use Rattle.sdr_model.specs.ListSteps.{compare_keys};
ghost use Rattle.sdr_model.specs.declared.keys.Keys.{Keys};

/// A law: by each of the two orders of keys any two are in order, and what comes behind another comes behind all that are before
/// that one. Different keys may be equal in it, as those of one length are. It does nothing.
pub fn key_orders_are_total()
    ensures { (by : Keys) → IsTotalOrder (compare_keys by) }
{}
