// Boards.
ghost use Rattle.std.specs.Prelude.{◌≡◌, ℕ, ◌+◌, ◌*◌, ◌<◌, ◌≤◌, length, map, vec_len, OnOk, OnErr, IsErrOf};
ghost use Rattle.mach_core.specs.Outside.{Rose};
ghost use Rattle.mach_core.specs.Put.{PutsFront, PutsText};
ghost use Rattle.piet_image.specs.Printed.{row_text};
ghost use Rattle.std.specs.List.{flat_map};
ghost use Rattle.std.specs.Io.KnownBytes.{Appends};
ghost use Rattle.piet_lane.specs.Drawn.{Reached, IsBoardText, PutsIf, board_text, lane_in, row_at, rows_of};
ghost use Rattle.piet_lane.specs.Lanes.{lanes_of};

use crate::command::Command;
use crate::row::{Extent, draw_row};
use crate::shade::colour_lane;
use mach_core::{Failed, Put, Sink};
use piet_image::{Colour, write_header, write_row};
use std::alloc::{AllocError, Global};
use std::marker::Model;
use thiserror::Error;

/// Why a board wasn't written.
#[derive(Clone, Copy, Debug, PartialEq, Eq, Error)]
pub enum WriteFault {
    #[error("the image can't be written")]
    Write,
    #[error("out of memory")]
    Memory,
}

/// Lanes of commands, and the number of the first that runs.
#[derive(Drop)]
pub struct Board {
    lanes: Vec<Vec<Command>>,
    reach: u32,
    start: u32,
}

impl Model for Board {
    ghost use Rattle.piet_lane.specs.Drawn.{Drawn, drawn_of, IsInside};

    ghost Value = { Drawn };

    ghost view = { drawn_of };

    ghost invariant = { IsInside };
}

// The larger of two.
fn larger(a: usize, b: usize) -> usize
    ensures first { a ≤ result }
    ensures second { b ≤ result }
    ensures least { (most : ℕ) → a ≤ most → b ≤ most → result ≤ most }
{
    if a < b { b } else { a }
}

// How many commands the longest lane has.
fn longest(lanes: &[Vec<Command>]) -> u32
    requires { Reached (map (λ v. v.items) lanes.now) 512 }
    ensures reached { Reached (map (λ v. v.items) lanes.now) result }
    ensures short { result ≤ 512 }
    ensures least { (n : ℕ) → Reached (map (λ v. v.items) lanes.now) n → result ≤ n }
{
    let mut reach = 0;
    for i in 0..lanes.len() {
        reach = larger(reach, lanes[i].len());
    }
    reach as u32
}

impl Board {
    /// The board of 1 to 16,384 lanes of at most 512 commands, which starts with the lane of this number. It takes no
    /// memory.
    pub fn new(lanes: Vec<Vec<Command>>, start: u32) -> Board
        requires few { vec_len lanes ≤ 16384 }
        requires known { start < vec_len lanes }
        requires short { Reached (map (λ v. v.items) lanes.items) 512 }
        ensures lanes { result.lanes ≡ map (λ v. v.items) lanes.items }
        ensures start { result.start ≡ start }
        ensures least { (n : ℕ) → Reached (map (λ v. v.items) lanes.items) n → result.reach ≤ n }
    {
        let reach = longest(&lanes);
        Board {
            lanes,
            reach,
            start,
        }
    }

    // How many lanes there are.
    fn count(&self) -> u32
        ensures count { result ≡ length self.now.lanes }
        ensures few { result ≤ 16384 }
        ensures short { self.now.reach ≤ 512 }
        ensures known { self.now.start < result }
    {
        self.lanes.len() as u32
    }

    // The commands of a lane, or none where no lane has the number.
    fn lane(&self, i: u32) -> &[Command]
        ensures { result.now ≡ lane_in self.now.lanes i }
    {
        match self.lanes.get(i as usize) {
            Some(commands) => commands.as_slice(),
            None => &[],
        }
    }

    // Draws a row in place of another, with the colours of its lane.
    fn draw(
        &self,
        y: u32,
        colours: &mut Vec<Colour>,
        row: &mut Vec<Colour>,
    ) -> Result<(), AllocError>
        requires { y < 5 * length self.now.lanes + 6 }
        ensures { OnOk result (row.new.items ≡ row_at (lanes_of self.now.lanes) self.now.reach self.now.start y) }
    {
        let count = self.count();
        let lane = y.saturating_sub(3) / 5;
        colour_lane(lane, self.lane(lane), colours)?;
        let extent = Extent {
            count,
            reach: self.reach,
            start: self.start,
        };
        draw_row(extent, y, colours, row)
    }

    // Puts the rows, one after the other.
    fn put_rows<O: Sink>(&self, alloc: Global, put: &mut Put, out: &mut O) -> Result<(), WriteFault>
        ensures { PutsIf (record { got = O.got out.old; faults = O.faults out.old; held = put.old })
            (record { got = O.got out.new; faults = O.faults out.new; held = put.new })
            (flat_map row_text (rows_of (lanes_of self.now.lanes) self.now.reach self.now.start)) result }
    {
        let mut colours = Vec::new(alloc);
        let mut row = Vec::new(alloc);
        for y in 0..5 * self.count() + 6 {
            let Ok(()) = self.draw(y, &mut colours, &mut row) else {
                return Err(WriteFault::Memory);
            };
            let Ok(()) = write_row(&row, put, out) else {
                return Err(WriteFault::Write);
            };
        }
        Ok(())
    }

    /// Writes an image in the plain pixel map format that runs lane `start` on no value, and after each lane takes the
    /// number on top and runs its lane, or ends where no lane has it. Each lane that runs is asked to leave a number of 0
    /// to 32,767 on top, and to keep all values within signed 64 bits.
    pub fn write<O: Sink>(&self, alloc: Global, out: &mut O) -> Result<(), WriteFault>
        ensures ok { OnOk result (PutsText (O.got out.old) (O.got out.new) (IsBoardText self.now)) }
        ensures exact { OnOk result (Appends (O.got out.old) (O.got out.new) (board_text self.now)) }
        ensures err { OnErr result (PutsFront (O.got out.old) (O.got out.new) (IsBoardText self.now)) }
        ensures write { IsErrOf result WriteFault.Write → Rose (O.faults out.old) (O.faults out.new) }
        ensures later { O.faults out.old ≤ O.faults out.new }
    {
        let mut put = Put::new();
        let height = 5 * self.count() + 6;
        let Ok(()) = write_header(self.reach + 5, height, &mut put, out) else {
            return Err(WriteFault::Write);
        };
        self.put_rows(alloc, &mut put, out)?;
        match put.flush(out) {
            Ok(()) => Ok(()),
            Err(Failed) => Err(WriteFault::Write),
        }
    }
}
