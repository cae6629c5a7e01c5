// How small worlds are printed.
ghost use Rattle.std.specs.Prelude.{◌≡◌, ◌++◌, codes};
ghost use Rattle.sdr_stands.specs.Example.{bundle_world};
ghost use Rattle.sdr_text_world.specs.Example.{bundle_census, mixed_census, mixed_world};
ghost use Rattle.sdr_text_world.specs.WorldText.{world_text};

/// A law: the world of a string, a list, a name, a source and an object in a heap of 1,024 lines is
/// printed just so. It does nothing.
pub fn bundle_is_printed_so()
    ensures { world_text bundle_world bundle_census
        ≡ codes "heap 65536 low 2416 high 65536\n"
        ++ codes "account in file 0 1099511627776 bulk 0 1099511627776 heap 0 32768\n"
        ++ codes "account out file 10 1099511627776 bulk 0 1099511627776 heap 120 32768\n"
        ++ codes "name \"mail\" 3 2072\n"
        ++ codes "2056 string x68656c6c6f\n"
        ++ codes "2072 list 7 1 2112:2056\n"
        ++ codes "2216 source file \"data.bin\" 10 0 1 0\n"
        ++ codes "2280 object out 1 1 0 13 0 10\n"
        ++ codes "blocks 8 small 0 large 0\n" }
{}

/// A law: a world with tickets in both queues, a raw object that a source names, a table and a hash
/// is printed just so. It does nothing.
pub fn mixed_world_is_printed_so()
    ensures { world_text mixed_world mixed_census
        ≡ codes "heap 65536 low 2768 high 63488\n"
        ++ codes "account in file 0 1 bulk 5 2 heap 555 3\n"
        ++ codes "account out file 0 4 bulk 0 5 heap 0 6\n"
        ++ codes "ticket 1 in 1 0 granted 0 5 450\n"
        ++ codes "ticket 4 out 0 255 waiting 7 0 600\n"
        ++ codes "name x6120 0 2400\n"
        ++ codes "2264 raw 3 2288\n"
        ++ codes "2288 source obj 2264 3 2 0 1\n"
        ++ codes "2336 table 9 2 1\n"
        ++ codes "2400 hash 1 1\n"
        ++ codes "2480 source bulk 77 12 0 0 0\n"
        ++ codes "2528 object in 2 0 1 6 1 4\n"
        ++ codes "blocks 13 small 3 large 1\n" }
{}
