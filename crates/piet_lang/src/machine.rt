// A machine that executes an image.
ghost use Rattle.std.specs.Prelude.{◌≡◌, IfOk};
ghost use Rattle.piet_lang.specs.Rule.{rule_of, start_of};
ghost use Rattle.piet_lang.specs.Step.{takes as takes_by};

use crate::act::Act;
use crate::chart::Chart;
use crate::number::Seen;
use crate::quiet::run_quietly;
use crate::state::PietState;
use mach_core::{Machine, Moved, Status};
use piet_image::Image;
use std::alloc::{AllocError, Global};

// Whether a command takes a byte.
#[inline(always)]
fn takes(act: Option<Act>) -> bool
    ensures { result ≡ takes_by act }
{
    matches!(act, Some(Act::InChar))
}

/// Executes an image step by step.
#[derive(Drop)]
pub struct PietMachine {
    chart: Chart,
    state: PietState,
}

impl PietMachine {
    /// A machine that stands at the start of an image. It finds the blocks of the image, with their sizes and exits.
    pub fn new(alloc: Global, image: Image) -> Result<PietMachine, AllocError>
        ensures code { IfOk result (λ m. ⟦<PietMachine as Machine>⟧.code m ≡ image) }
        ensures config { IfOk result (λ m. ⟦<PietMachine as Machine>⟧.config m ≡ start_of image) }
    {
        let chart = Chart::of(alloc, image)?;
        let status = chart.first_status();
        Ok(PietMachine {
            chart,
            state: PietState::start(alloc, status),
        })
    }
}

impl Machine for PietMachine {
    ghost use Rattle.piet_lang.specs.Machine.{code_of, state_of};

    type Code = Chart;

    type Config = PietState;

    ghost rule = { rule_of };

    ghost start = { start_of };

    ghost code = { code_of };

    ghost config = { state_of };

    fn status(&self) -> Status {
        self.state.status()
    }

    fn wants(&self) -> bool {
        match self.state.reading() {
            Some(Seen::Outside) => false,
            Some(_) => true,
            None => takes(self.chart.act_at(self.state.at())),
        }
    }

    fn step(&mut self, fed: u8) -> Result<Moved, AllocError> {
        if let Some(seen) = self.state.reading() {
            return self.state.read_on(seen, fed);
        }
        let at = self.state.at();
        let Some(departure) = self.chart.departure(at)? else {
            self.state.end();
            return Ok(Moved::Quiet);
        };
        let Some(act) = departure.act else {
            self.state.go(departure.to);
            return Ok(Moved::Quiet);
        };
        let size = self.chart.size(at.place);
        self.state.perform(act, departure.to, size, fed)
    }

    fn run_quietly(&mut self, most: u64) -> u64 {
        run_quietly(&self.chart, &mut self.state, most)
    }
}
