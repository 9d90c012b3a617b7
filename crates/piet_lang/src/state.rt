// Where a run is.
ghost use Rattle.std.specs.Prelude.{◌≡◌, ℕ, ◌<◌, true, false, List, ℤ, [], None, Some, IfOk, OnErr, slice_get};
ghost use Rattle.mach_core.specs.declared.machine.Status.TheVariants.{Ended};
ghost use Rattle.piet_lang.specs.Step.{corner, turned_by, toggled_by, reading_of as reading_by, read_to, acted};
ghost use Rattle.piet_lang.specs.Quiet.{IsQuiet};
ghost use Rattle.piet_lang.specs.Seen.{ReadingFits, ProgressFits};
ghost use Rattle.piet_lang.specs.Acts.{Acts, Reads, MovesWith, led as led_by};
ghost use Rattle.piet_image.specs.declared.place.Pointer.TheVariants.{Right};
ghost use Rattle.piet_image.specs.declared.place.Chooser.TheVariants.{ToLeft};

use crate::act::Act;
use crate::number::{Progress, Seen, after_blanks, after_digits};
use crate::stack::Stack;
use mach_core::{Moved, Status};
use piet_image::{Chooser, Place, Pointer, Stand};
use std::alloc::{AllocError, Global};
use std::marker::Model;

/// Where a run stands, with its values. A clause sees the configuration of the step rule.
#[derive(Drop)]
pub struct PietState {
    at: Stand,
    stack: Stack,
    reading: Option<Seen>,
    status: Status,
}

impl Model for PietState {
    ghost use Rattle.piet_lang.specs.Step.{Config};

    ghost Value = { Config };

    ghost use Rattle.piet_lang.specs.State.{config_of, IsInside};

    ghost view = { config_of };

    ghost invariant = { IsInside };
}

// The pointer after so many quarter turns clockwise.
fn turned(pointer: Pointer, turns: u64) -> Pointer
    requires { turns < 4 }
    ensures { result ≡ turned_by turns pointer }
{
    match turns {
        0 => pointer,
        1 => pointer.clockwise(),
        2 => pointer.clockwise().clockwise(),
        _ => pointer.clockwise().clockwise().clockwise(),
    }
}

// The chooser after so many toggles.
fn toggled(chooser: Chooser, toggles: u64) -> Chooser
    requires { toggles < 2 }
    ensures { result ≡ toggled_by toggles chooser }
{
    if toggles == 0 {
        chooser
    } else {
        chooser.other()
    }
}

// Where a command leads whose way goes to a place, with this top value.
#[inline(always)]
fn led(act: Act, to: Stand, top: Option<i64>) -> Stand
    ensures { (stack : List ℤ) → top ≡ slice_get stack 0 → result ≡ led_by act to stack }
{
    match (act, top) {
        (Act::Point, Some(turns)) => Stand {
            place: to.place,
            pointer: turned(to.pointer, turns.rem_euclid(4).unsigned_abs()),
            chooser: to.chooser,
        },
        (Act::Switch, Some(toggles)) => Stand {
            place: to.place,
            pointer: to.pointer,
            chooser: toggled(to.chooser, toggles.rem_euclid(2).unsigned_abs()),
        },
        _ => to,
    }
}

// What a command takes or writes, with this top value.
#[inline(always)]
fn moved_by(act: Act, top: Option<i64>) -> Moved
    ensures { MovesWith act top result }
{
    match (act, top) {
        (Act::InChar, _) => Moved::Took,
        (Act::OutChar, Some(value)) => Moved::Wrote(value.rem_euclid(256).unsigned_abs() as u8),
        (Act::OutNumber, Some(value)) => Moved::Spelled(value),
        _ => Moved::Quiet,
    }
}

// Nothing of a number was seen yet behind a command that reads one.
#[inline(always)]
fn reading_of(act: Act) -> Option<Seen>
    ensures reading { result ≡ reading_by act }
    ensures fits { ReadingFits result }
{
    match act {
        Act::InNumber => Some(Seen::Blanks),
        _ => None,
    }
}

// Whether a command neither takes nor writes.
#[inline(always)]
fn is_quiet(act: Act) -> bool
    ensures { result ≡ true → IsQuiet act }
{
    match act {
        Act::InNumber | Act::InChar | Act::OutNumber | Act::OutChar => false,
        _ => true,
    }
}

// Whether a command may need memory.
#[inline(always)]
fn grows(act: Act) -> bool {
    matches!(act, Act::Push | Act::Duplicate)
}

impl PietState {
    /// At the top left codel, looking right, with the chooser to the left and no value.
    pub(crate) fn start(alloc: Global, status: Status) -> PietState
        ensures { result ≡ record { at = record { place = corner; pointer = Right; chooser = ToLeft }; stack = []; reading = None; standing = status } }
    {
        PietState {
            at: Stand {
                place: Place { x: 0, y: 0 },
                pointer: Pointer::Right,
                chooser: Chooser::ToLeft,
            },
            stack: Stack::new(alloc),
            reading: None,
            status,
        }
    }

    /// Where it stands.
    #[inline(always)]
    pub(crate) fn at(&self) -> Stand
        ensures { result ≡ self.now.at }
    {
        self.at
    }

    /// That it is not over, or how it is.
    #[inline(always)]
    pub(crate) fn status(&self) -> Status
        ensures { result ≡ self.now.standing }
    {
        self.status
    }

    /// What was seen of the number that is being read, if one is.
    #[inline(always)]
    pub(crate) fn reading(&self) -> Option<Seen>
        ensures { result ≡ self.now.reading }
    {
        self.reading
    }

    /// Whether one more value needs no memory.
    #[inline(always)]
    pub(crate) fn has_room(&self) -> bool {
        self.stack.has_room()
    }

    /// The run ends.
    pub(crate) fn end(&mut self)
        ensures { self.new ≡ record self.old { standing = Ended } }
    {
        self.status = Status::Ended;
    }

    /// Goes to another place without a command.
    #[inline(always)]
    pub(crate) fn go(&mut self, to: Stand)
        ensures { self.new ≡ record self.old { at = to } }
    {
        self.at = to;
    }

    /// Does a command by which the run leaves a block of this size. An error leaves all as it was.
    #[inline(always)]
    pub(crate) fn perform(
        &mut self,
        act: Act,
        to: Stand,
        size: u32,
        fed: u8,
    ) -> Result<Moved, AllocError>
        ensures ok { IfOk result (λ moved. Acts size self.old act to fed self.new moved) }
        ensures err { OnErr result (self.new ≡ self.old) }
    {
        let top = self.stack.top();
        let change = self.stack.change(act, size, fed);
        let moved = moved_by(act, top);
        let at = led(act, to, top);
        let reading = reading_of(act);
        if self.stack.apply(change)? {
            self.at = at;
            self.reading = reading;
        } else {
            self.status = Status::Fault(1);
        }
        Ok(moved)
    }

    /// Does a command by which the run leaves a block of this size, if it takes nothing, writes nothing and needs no memory.
    #[inline(always)]
    pub(crate) fn perform_quietly(&mut self, act: Act, to: Stand, size: u32) -> bool
        ensures quiet { result ≡ true → IsQuiet act }
        ensures done { result ≡ true → self.new ≡ acted size self.old act to 0 }
        ensures not { result ≡ false → self.new ≡ self.old }
    {
        if !is_quiet(act) || grows(act) && !self.has_room() {
            return false;
        }
        match self.perform(act, to, size, 0) {
            Ok(_) => true,
            Err(_) => false,
        }
    }

    // Goes on with a number, whose byte was taken.
    fn go_on_reading(&mut self, progress: Progress) -> Result<Moved, AllocError>
        requires { ProgressFits progress }
        ensures ok { IfOk result (λ moved. (moved ≡ Moved.Took) × (self.new ≡ read_to self.old progress)) }
        ensures err { OnErr result (self.new ≡ self.old) }
    {
        match progress {
            Progress::On(seen) => self.reading = Some(seen),
            Progress::Closed(value) => {
                self.stack.put(0, value)?;
                self.reading = None;
            }
        }
        Ok(Moved::Took)
    }

    /// The next step of the number that is being read. An error leaves all as it was.
    pub(crate) fn read_on(&mut self, seen: Seen, fed: u8) -> Result<Moved, AllocError>
        requires { self.old.reading ≡ Some seen }
        ensures ok { IfOk result (λ moved. Reads self.old seen fed self.new moved) }
        ensures err { OnErr result (self.new ≡ self.old) }
    {
        let _ = &self.at;
        match seen {
            Seen::Blanks => self.go_on_reading(after_blanks(fed)),
            Seen::Digits(negative, size) => self.go_on_reading(after_digits(negative, size, fed)),
            Seen::Outside => {
                self.status = Status::Fault(1);
                Ok(Moved::Quiet)
            }
        }
    }
}
