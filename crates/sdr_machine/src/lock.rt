// The lock of a machine: it serves the daemon whose number is served, on any ground.
ghost use Rattle.std.specs.Prelude.{◌&&◌, ◌==◌, ◌≡◌, ◌<◌, ◌+◌, ◌^◌, ◌∷◌, ◌⊎◌, IfErr, IfOk, None, Some, Ok, OnErr, true, false};
ghost use Rattle.sdr_machine.specs.Crash.{commits_by, commits_in, commits_of, commits_under};
ghost use Rattle.sdr_machine.specs.Ground.{State};
ghost use Rattle.sdr_machine.specs.Machine.{MachineStep, StepsOf, Comes, ComesLooking, Holds, OnTurn, Performs, Enters, Looks, LooksHolding, BeginsUnder, Closes, FaultsWithin, ComesLeaving, Draws, IsSuspended, LeavesHolding, is_of_work, is_outside};
ghost use Rattle.sdr_machine.specs.Roll.{MayDraw, when_done, at_nesting, daemon_of, first_roll, held_by, with_daemon, with_fault, with_number};
ghost use Rattle.sdr_machine.specs.Served.{HoldsServed, HoldsNumber, HoldsNone};
ghost use Rattle.sdr_machine.specs.Serving.{Acts, takes_memory};
ghost use Rattle.sdr_machine.specs.Transaction.{is_closing, transaction_of};

use crate::failing::go_failed;
use crate::seeing::{after_look, sight};
use crate::settling::settle;
use crate::{Backing, Came, Daemon, Fault, Halt, Holding, Nesting, Roll, refused};
use sdr_base::{NoMemory, Refusal};
use sdr_model::{Answer, Call, Event, Reply};
use std::alloc::{AllocError, Global};
use std::marker::Model;

/// The roll of the daemons, and the ground of the served transaction.
#[derive(Drop)]
pub struct Lock<T: Backing> {
    roll: Roll,
    base: T,
}

impl<T: Backing> Model for Lock<T> {
    ghost use Rattle.sdr_machine.specs.Served.{KeepsGroundReady};
    ghost use Rattle.sdr_machine.specs.Serving.{Locked};

    ghost Value = { Locked T };

    ghost view = { λ s. record { roll = s.roll; base = s.base } };

    ghost invariant = { λ s. KeepsGroundReady T.HasGround s.roll s.base };
}

// An answer for which no call was made.
fn told(answer: Answer) -> Came
    ensures { result ≡ record { answer = answer; called = false } }
{
    Came {
        answer,
        called: false,
    }
}

// The disk has failed in an event of a daemon, whose number is done.
fn fail<T: Backing>(roll: &mut Roll, base: &T, daemon: Daemon) -> Came
    ensures answer { result ≡ record { answer = Answer.Reply Reply.DiskFault; called = false } }
    ensures roll { roll.new ≡ with_fault (with_daemon roll.old (when_done daemon)) (T.moment base.now) }
{
    roll.put(daemon.when_done());
    roll.fail(base.moment());
    told(Answer::Reply(Reply::DiskFault))
}

// Whether the daemon has a number, but is in no transaction.
fn is_outside(holding: &Holding, event: &Event) -> bool
    ensures { result ≡ is_outside holding.now event.now }
{
    match event {
        Event::Begin => false,
        _ => holding.nesting.depth == 0,
    }
}

impl<T: Backing> Lock<T> {
    /// No number drawn, on this ground, on which no transaction is open.
    pub fn new(alloc: Global, ids: &[u8], base: T) -> Result<Lock<T>, (NoMemory, T)>
        requires { T.idle base }
        ensures made { IfOk result (λ lock. lock ≡ record { roll = first_roll ids.now; base = base }) }
        ensures back { IfErr result (λ why. why.1 ≡ base) }
    {
        match Roll::new(alloc, ids) {
            Ok(roll) => Ok(Lock { roll, base }),
            Err(why) => Err((why, base)),
        }
    }

    // A call in a transaction that isn't doomed.
    fn ask(&mut self, daemon: Daemon, holding: Holding, call: &Call) -> Result<Came, NoMemory>
        requires turn { HoldsServed self.old.roll daemon holding }
        requires begun { 0 < holding.nesting.depth }
        requires lasts { T.lasts self.old.base 1 }
        requires stays { daemon.left ≡ false }
        requires sound { self.old.roll.failed ≡ None }
        requires undoomed { holding.nesting.doom ≡ None }
        ensures serves { IfOk result (λ came. Acts T.HasGround
            (commits_in holding.nesting (Event.Say call.now))
            (λ m e m'. OnTurn m daemon holding (Event.Say call.now) e m') daemon.id (Event.Say call.now) came self.old self.new) }
        ensures err { OnErr result (self.new ≡ self.old) }
    {
        match self.base.call(call) {
            Ok(reply) => {
                let mut nesting = holding.nesting;
                nesting.note(call, reply);
                self.roll.put(daemon.at_nesting(holding, nesting));
                Ok(Came {
                    answer: Answer::Reply(reply),
                    called: true,
                })
            }
            Err(Halt::Memory) => Err(AllocError),
            Err(Halt::Fault) => Ok(fail(&mut self.roll, &self.base, daemon)),
        }
    }

    // A call in a transaction.
    fn say(&mut self, daemon: Daemon, holding: Holding, call: &Call) -> Result<Came, NoMemory>
        requires turn { HoldsServed self.old.roll daemon holding }
        requires begun { 0 < holding.nesting.depth }
        requires lasts { T.lasts self.old.base 1 }
        requires stays { daemon.left ≡ false }
        requires sound { self.old.roll.failed ≡ None }
        ensures serves { IfOk result (λ came. Acts T.HasGround
            (commits_in holding.nesting (Event.Say call.now))
            (λ m e m'. OnTurn m daemon holding (Event.Say call.now) e m') daemon.id (Event.Say call.now) came self.old self.new) }
        ensures err { OnErr result (self.new ≡ self.old) }
    {
        match holding.nesting.doom {
            None => self.ask(daemon, holding, call),
            Some(by) => {
                self.roll.put(daemon.at_nesting(holding, holding.nesting));
                Ok(told(refused(Refusal::Doomed { by })))
            }
        }
    }

    // Commits or rolls back the transaction, whose number is then done. Only a commit may find no memory.
    fn finish(&mut self, daemon: Daemon, holding: &Holding, event: &Event) -> Result<Came, NoMemory>
        requires turn { HoldsServed self.old.roll daemon holding.now }
        requires sound { self.old.roll.failed ≡ None }
        requires closing { (s : State) → is_closing (transaction_of holding.now s) event.now
            ≡ true }
        ensures closes { IfOk result (λ came. Acts T.HasGround
            (commits_in holding.now.nesting event.now)
            (λ m e m'. Closes m daemon holding.now e m' ⊎ FaultsWithin m daemon holding.now event.now e m')
            daemon.id event.now came self.old self.new) }
        ensures err { OnErr result (self.new ≡ self.old) }
        ensures kept { OnErr result (commits_in holding.now.nesting event.now ≡ true) }
    {
        let close = holding.nesting.closing(event);
        match settle(&mut self.base, close) {
            Ok(()) => {
                self.roll.put(daemon.when_done());
                Ok(told(Answer::Closed(close)))
            }
            Err(Halt::Memory) => Err(AllocError),
            Err(Halt::Fault) => Ok(fail(&mut self.roll, &self.base, daemon)),
        }
    }

    // The first begin under a number that was drawn before.
    fn open(&mut self, daemon: Daemon, holding: Holding) -> Came
        requires turn { HoldsServed self.old.roll daemon holding }
        requires unbegun { holding.nesting.depth ≡ 0 }
        ensures { Acts T.HasGround false (λ m e m'.
            BeginsUnder m daemon holding e m') daemon.id Event.Begin result self.old self.new }
    {
        let number = holding.number;
        self.roll.put(daemon.at_nesting(holding, Nesting::at(1)));
        told(Answer::Lock { number })
    }

    // A begin: the first one, or an inner one.
    fn begin(&mut self, daemon: Daemon, holding: Holding) -> Came
        requires turn { HoldsServed self.old.roll daemon holding }
        ensures { Acts T.HasGround false (λ m e m'.
            OnTurn m daemon holding Event.Begin e m') daemon.id Event.Begin result self.old
            self.new }
    {
        let mut nesting = holding.nesting;
        if nesting.depth == 0 {
            return self.open(daemon, holding);
        }
        let answer = nesting.begin();
        self.roll.put(daemon.at_nesting(holding, nesting));
        told(answer)
    }

    // An end: the outermost one, or an inner one.
    fn end(&mut self, daemon: Daemon, holding: Holding) -> Result<Came, NoMemory>
        requires turn { HoldsServed self.old.roll daemon holding }
        requires sound { self.old.roll.failed ≡ None }
        ensures closes { IfOk result (λ came. Acts T.HasGround (commits_in holding.nesting Event.End)
            (λ m e m'. OnTurn m daemon holding Event.End e m')
            daemon.id Event.End came self.old self.new) }
        ensures err { OnErr result (self.new ≡ self.old) }
        ensures memory { OnErr result (takes_memory Event.End ≡ true) }
    {
        let mut nesting = holding.nesting;
        if nesting.depth <= 1 {
            return self.finish(daemon, &holding, &Event::End);
        }
        let answer = nesting.end();
        self.roll.put(daemon.at_nesting(holding, nesting));
        Ok(told(answer))
    }

    // An exit: the outermost one, or an inner one.
    fn exit(&mut self, daemon: Daemon, holding: Holding) -> Result<Came, NoMemory>
        requires turn { HoldsServed self.old.roll daemon holding }
        requires sound { self.old.roll.failed ≡ None }
        ensures closes { IfOk result (λ came. Acts T.HasGround false (λ m e m'.
            OnTurn m daemon holding Event.Exit e m')
            daemon.id Event.Exit came self.old self.new) }
        ensures err { OnErr result (self.new ≡ self.old) }
        ensures memory { OnErr result (takes_memory Event.Exit ≡ true) }
    {
        let mut nesting = holding.nesting;
        if nesting.depth <= 1 {
            return self.finish(daemon, &holding, &Event::Exit);
        }
        let answer = nesting.end();
        self.roll.put(daemon.at_nesting(holding, nesting));
        Ok(told(answer))
    }

    // A cancel: the outermost one, or an inner one.
    fn cancel(&mut self, daemon: Daemon, holding: Holding) -> Result<Came, NoMemory>
        requires turn { HoldsServed self.old.roll daemon holding }
        requires sound { self.old.roll.failed ≡ None }
        ensures closes { IfOk result (λ came. Acts T.HasGround false (λ m e m'.
            OnTurn m daemon holding Event.Cancel e m')
            daemon.id Event.Cancel came self.old self.new) }
        ensures err { OnErr result (self.new ≡ self.old) }
        ensures memory { OnErr result (takes_memory Event.Cancel ≡ true) }
    {
        let mut nesting = holding.nesting;
        if nesting.depth <= 1 {
            return self.finish(daemon, &holding, &Event::Cancel);
        }
        let answer = nesting.cancel();
        self.roll.put(daemon.at_nesting(holding, nesting));
        Ok(told(answer))
    }

    // A daemon without a number draws the next one, at this depth.
    fn draw(&mut self, daemon: Daemon, depth: u64, event: &Event) -> Came
        requires free { HoldsNone self.old.roll daemon }
        requires drawn { self.old.roll.drawn < 2 ^ 60 }
        ensures { Acts T.HasGround false (λ m e m'.
            Draws m daemon e depth m') daemon.id event.now result self.old self.new }
    {
        let number = self.roll.draw(daemon, depth);
        told(Answer::Lock { number })
    }

    // A daemon without a number draws one that can't be served yet.
    fn draw_suspended(&mut self, daemon: Daemon, event: &Event) -> Came
        requires free { HoldsNone self.old.roll daemon }
        requires drawn { self.old.roll.drawn < 2 ^ 60 }
        ensures { Acts T.HasGround false (λ m e m'.
            IsSuspended m e (m.roll.drawn + 1) (with_number m.roll daemon 0) m')
            daemon.id event.now result self.old self.new }
    {
        let serving = self.roll.serving();
        let mine = self.roll.draw(daemon, 0);
        told(refused(Refusal::Suspended { serving, mine }))
    }

    // A look at a ticket of a daemon that is served.
    fn look(&mut self, daemon: Daemon, ticket: u64) -> Came
        requires found { daemon_of self.old.roll daemon.id ≡ Some daemon }
        requires idle { T.idle self.old.base }
        requires sound { self.old.roll.failed ≡ None }
        ensures { Acts T.HasGround false (λ m e m'.
            Looks m daemon e ticket m.roll m') daemon.id (Event.Look ticket) result self.old
            self.new }
    {
        match sight(&mut self.base, &self.roll, &daemon, ticket) {
            Ok(answer) => {
                self.roll.put(after_look(daemon, ticket, &answer));
                told(answer)
            }
            Err(Fault) => fail(&mut self.roll, &self.base, daemon),
        }
    }

    // A look of a daemon without a number: it draws one, which is done at once where it is served.
    fn comes_looking(&mut self, daemon: Daemon, ticket: u64, event: &Event) -> Came
        requires free { HoldsNone self.old.roll daemon }
        requires drawn { self.old.roll.drawn < 2 ^ 60 }
        requires sound { self.old.roll.failed ≡ None }
        requires look { event.now ≡ Event.Look ticket }
        ensures { Acts T.HasGround false (λ m e m'.
            ComesLooking m daemon e ticket m') daemon.id event.now result self.old self.new }
    {
        if self.roll.serving() != 0 {
            return self.draw_suspended(daemon, event);
        }
        self.roll.draw_done();
        self.look(daemon, ticket)
    }

    // A leave of a daemon without a number: it draws one, which is done at once where it is served.
    fn comes_leaving(&mut self, daemon: Daemon, event: &Event) -> Came
        requires free { HoldsNone self.old.roll daemon }
        requires drawn { self.old.roll.drawn < 2 ^ 60 }
        ensures { Acts T.HasGround false (λ m e m'.
            ComesLeaving m daemon e m') daemon.id event.now result self.old self.new }
    {
        if self.roll.serving() != 0 {
            return self.draw_suspended(daemon, event);
        }
        self.roll.draw_done();
        self.roll.put(daemon.after_leave());
        told(Answer::Reply(Reply::Done))
    }

    // A look under a number that is held.
    fn looks_holding(&mut self, daemon: Daemon, holding: &Holding, ticket: u64) -> Came
        requires held { HoldsNumber self.old.roll daemon.id daemon holding.now }
        requires sound { self.old.roll.failed ≡ None }
        ensures { Acts T.HasGround false (λ m e m'.
            LooksHolding m daemon holding.now ticket e m') daemon.id (Event.Look ticket)
            result self.old self.new }
    {
        let mine = holding.number;
        if holding.nesting.depth > 0 {
            return told(refused(Refusal::InTransaction { mine }));
        }
        let serving = self.roll.serving();
        if serving != mine {
            return told(refused(Refusal::Suspended { serving, mine }));
        }
        self.look(daemon, ticket)
    }

    // A leave under a number that is held.
    fn leave(&mut self, daemon: Daemon, holding: &Holding, event: &Event) -> Came
        requires held { HoldsNumber self.old.roll daemon.id daemon holding.now }
        requires sound { self.old.roll.failed ≡ None }
        requires closing { (s : State) → is_closing (transaction_of holding.now s) event.now
            ≡ true }
        requires no_end { commits_in holding.now.nesting event.now ≡ false }
        ensures { Acts T.HasGround false (λ m e m'.
            LeavesHolding m daemon holding.now event.now e m') daemon.id event.now
            result self.old self.new }
    {
        let mine = holding.number;
        let serving = self.roll.serving();
        if serving != mine {
            return told(refused(Refusal::Suspended { serving, mine }));
        }
        if holding.nesting.depth > 0 {
            let Ok(came) = self.finish(daemon, holding, event) else {
                unreachable!();
            };
            return came;
        }
        self.roll.put(daemon.after_leave());
        told(Answer::Reply(Reply::Done))
    }

    // An event, where the disk has failed at a moment.
    fn fail_again(&mut self, daemon: u8, event: &Event, moment: u64) -> Came
        requires drawn { MayDraw self.old.roll (held_by self.old.roll daemon) }
        requires failed { self.old.roll.failed ≡ Some moment }
        ensures { Acts T.HasGround false MachineStep daemon event.now result self.old self.new }
    {
        go_failed(&mut self.roll, daemon, event);
        told(Answer::Reply(Reply::Failed { moment }))
    }

    // An event of a daemon without a number.
    fn come(&mut self, daemon: Daemon, event: &Event) -> Came
        requires free { HoldsNone self.old.roll daemon }
        requires drawn { self.old.roll.drawn < 2 ^ 60 }
        requires sound { self.old.roll.failed ≡ None }
        ensures { Acts T.HasGround false (λ m e m'.
            Comes m daemon event.now e m') daemon.id event.now result self.old self.new }
    {
        match event {
            Event::Request => self.draw(daemon, 0, event),
            Event::Begin => self.draw(daemon, 1, event),
            Event::Look(ticket) => self.comes_looking(daemon, *ticket, event),
            Event::Leaves(_) => self.comes_leaving(daemon, event),
            _ => told(refused(Refusal::NotBegun)),
        }
    }

    // One event of a daemon that holds a number.
    fn hold(&mut self, daemon: Daemon, holding: Holding, event: &Event) -> Result<Came, NoMemory>
        requires held { HoldsNumber self.old.roll daemon.id daemon holding }
        requires stays { daemon.left ≡ false }
        requires sound { self.old.roll.failed ≡ None }
        requires lasts { T.lasts self.old.base 1 }
        ensures holds { IfOk result (λ came. Acts T.HasGround
            (commits_under self.old.roll holding event.now)
            (λ m e m'. Holds m daemon holding event.now e m') daemon.id event.now came self.old self.new) }
        ensures err { OnErr result (self.new ≡ self.old) }
        ensures memory { OnErr result (takes_memory event.now ≡ true) }
    {
        match event {
            Event::Request => Ok(told(Answer::Lock {
                number: holding.number,
            })),
            Event::Look(ticket) => Ok(self.looks_holding(daemon, &holding, *ticket)),
            Event::Leaves(_) => Ok(self.leave(daemon, &holding, event)),
            _ => self.enter(daemon, holding, event),
        }
    }

    // One event of a transaction, or a first begin, under a number that is held.
    fn enter(&mut self, daemon: Daemon, holding: Holding, event: &Event) -> Result<Came, NoMemory>
        requires held { HoldsNumber self.old.roll daemon.id daemon holding }
        requires stays { daemon.left ≡ false }
        requires sound { self.old.roll.failed ≡ None }
        requires lasts { T.lasts self.old.base 1 }
        requires within { is_of_work event.now ≡ true }
        ensures enters { IfOk result (λ came. Acts T.HasGround
            (commits_under self.old.roll holding event.now)
            (λ m e m'. Enters m daemon holding event.now e m') daemon.id event.now came self.old self.new) }
        ensures err { OnErr result (self.new ≡ self.old) }
        ensures memory { OnErr result (takes_memory event.now ≡ true) }
    {
        let mine = holding.number;
        if is_outside(&holding, event) {
            return Ok(told(refused(Refusal::NotBegun)));
        }
        let serving = self.roll.serving();
        if serving != mine {
            return Ok(told(refused(Refusal::Suspended { serving, mine })));
        }
        self.serve(daemon, holding, event)
    }

    // One event of the served transaction, or its first begin.
    fn serve(&mut self, daemon: Daemon, holding: Holding, event: &Event) -> Result<Came, NoMemory>
        requires turn { HoldsServed self.old.roll daemon holding }
        requires inside { is_outside holding event.now ≡ false }
        requires stays { daemon.left ≡ false }
        requires sound { self.old.roll.failed ≡ None }
        requires lasts { T.lasts self.old.base 1 }
        requires within { is_of_work event.now ≡ true }
        ensures serves { IfOk result (λ came. Acts T.HasGround (commits_in holding.nesting event.now)
            (λ m e m'. OnTurn m daemon holding event.now e m') daemon.id event.now came self.old self.new) }
        ensures err { OnErr result (self.new ≡ self.old) }
        ensures memory { OnErr result (takes_memory event.now ≡ true) }
    {
        match event {
            Event::Begin => Ok(self.begin(daemon, holding)),
            Event::Say(call) => self.say(daemon, holding, call),
            Event::End => self.end(daemon, holding),
            Event::Cancel => self.cancel(daemon, holding),
            Event::Exit => self.exit(daemon, holding),
            _ => unreachable!(),
        }
    }

    // One event of a daemon of the lock's.
    fn perform(&mut self, daemon: Daemon, event: &Event) -> Result<Came, NoMemory>
        requires found { daemon_of self.old.roll daemon.id ≡ Some daemon }
        requires drawn { MayDraw self.old.roll daemon.holds }
        requires sound { self.old.roll.failed ≡ None }
        requires lasts { T.lasts self.old.base 1 }
        ensures performs { IfOk result (λ came. Acts T.HasGround
            (commits_of self.old.roll daemon event.now)
            (λ m e m'. Performs m daemon e m') daemon.id event.now came self.old self.new) }
        ensures err { OnErr result (self.new ≡ self.old) }
        ensures memory { OnErr result (takes_memory event.now ≡ true) }
    {
        if daemon.left {
            return Ok(told(refused(Refusal::NotBegun)));
        }
        match daemon.holds {
            None => Ok(self.come(daemon, event)),
            Some(holding) => self.hold(daemon, holding, event),
        }
    }

    // An event, where the disk hasn't failed.
    fn answer(&mut self, id: u8, event: &Event) -> Result<Came, NoMemory>
        requires drawn { MayDraw self.old.roll (held_by self.old.roll id) }
        requires sound { self.old.roll.failed ≡ None }
        requires lasts { T.lasts self.old.base 1 }
        ensures answers { IfOk result (λ came. Acts T.HasGround
            (commits_by self.old.roll id event.now) (λ m e m'. StepsOf m e m')
            id event.now came self.old self.new) }
        ensures err { OnErr result (self.new ≡ self.old) }
        ensures memory { OnErr result (takes_memory event.now ≡ true) }
    {
        match self.roll.daemon(id) {
            None => Ok(told(refused(Refusal::NotBegun))),
            Some(daemon) => self.perform(daemon, event),
        }
    }

    /// Makes an event of a daemon. Want of memory leaves all as before; only a call and an end may find none.
    pub fn event(&mut self, daemon: u8, event: &Event) -> Result<Came, NoMemory>
        requires drawn { MayDraw self.old.roll (held_by self.old.roll daemon) }
        requires lasts { T.lasts self.old.base 1 }
        ensures step { IfOk result (λ came. Acts T.HasGround
            (commits_by self.old.roll daemon event.now) MachineStep
            daemon event.now came self.old self.new) }
        ensures err { OnErr result (self.new ≡ self.old) }
        ensures memory { OnErr result (takes_memory event.now ≡ true) }
    {
        match self.roll.failed() {
            Some(moment) => Ok(self.fail_again(daemon, event, moment)),
            None => self.answer(daemon, event),
        }
    }

    /// The roll of its daemons.
    pub fn roll(&self) -> &Roll
        ensures { result.now ≡ self.now.roll }
    {
        &self.roll
    }

    /// Its ground.
    pub fn base(&self) -> &T
        ensures { result.now ≡ self.now.base }
    {
        &self.base
    }

    /// Its ground. The roll is let go.
    pub fn into_base(self) -> T
        ensures { result ≡ self.base }
    {
        let Lock { roll: _, base } = self;
        base
    }

    /// The disk's moment.
    pub fn moment(&self) -> u64
        ensures { result ≡ T.moment self.now.base }
    {
        self.base.moment()
    }
}
