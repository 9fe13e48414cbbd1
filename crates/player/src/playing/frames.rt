//! Frames played, one by one.

ghost use Rattle.machine.specs.Machines.{standing};
ghost use Rattle.machine.specs.Standing.{starting};
ghost use Rattle.player.specs.Players.{machine_as, stands_as};
ghost use Rattle.player.specs.Playing.{Does, last_lines, last_of, line_played, named_by, on_machine, result_played};
ghost use Rattle.player.specs.Answering.{Answers, IfRefused};
ghost use Rattle.std.specs.Prelude.{◌≡◌, ◌++◌, IfErr, IfOk, None, OnOk, Err, Ok, box_value};

use super::unplayed::Unplayed;
use super::{NamedMachine, Playing};
use crate::writing::{write_ended, write_refusal};
use arbiters::{Arbiter, Diagonal, Ripple};
use lines::{ArbiterKind, Frame, SlotLine};
use machine::Machine;
use refusals::Refusal;
use routes::Route;
use std::alloc::{AllocError, Global};

/// Does a frame on a machine, and writes what it answers.
fn play_on<A: Arbiter>(
    machine: &mut Machine<A>,
    frame: &Frame,
    out: &mut Vec<u8>,
) -> Result<(), Unplayed>
    ensures { Answers (λ n. on_machine A.meaning (standing machine.old) n frame.now) result (standing machine.new) out.old.items out.new.items }
{
    match frame {
        Frame::Start { .. } => return Err(Refusal::OutOfPlace.into()),
        Frame::Route {
            input,
            vci,
            output,
            new_vci,
        } => {
            let route = Route {
                vci: *vci,
                output: *output,
                new_vci: *new_vci,
            };
            machine.set_route(*input, route)?;
        }
        Frame::Cell { input, cell } => {
            machine.arrive(*input, cell)?;
        }
        Frame::Close => write_ended(&machine.end_slot()?, out)?,
    }
    Ok(())
}

/// Ends the slot of a machine if one is open, and writes what is told of it.
fn end_open<A: Arbiter>(machine: &mut Machine<A>, out: &mut Vec<u8>) -> Result<(), AllocError>
    ensures { OnOk result (out.new.items ≡ out.old.items ++ last_of A.meaning (standing machine.old)) }
{
    if !machine.slot_is_open() {
        return Ok(());
    }
    match machine.end_slot() {
        Ok(ended) => write_ended(&ended, out),
        Err(_) => unreachable(),
    }
}

/// A machine of this arbiter, just made.
fn made<A: Arbiter + Drop>(
    heap: Global,
    arbiter: A,
    mark: u32,
    first_slot: u32,
) -> Result<Box<Machine<A>>, AllocError>
    ensures { IfOk result (λ m. standing (box_value m) ≡ starting A.meaning arbiter mark first_slot) }
{
    Ok(Box::new(heap, Machine::new(arbiter, mark, first_slot))?)
}

impl NamedMachine {
    /// The machine that a start frame names, just made. A frame of any other kind is out of place.
    fn named(heap: Global, frame: &Frame) -> Result<NamedMachine, Unplayed>
        ensures made { IfOk result (λ m. named_by frame.now ≡ Ok (machine_as m)) }
        ensures refused { IfErr result (λ e. IfRefused e (λ k. named_by frame.now ≡ Err k)) }
    {
        let Frame::Start {
            ports,
            arbiter,
            mark,
            first_slot,
        } = frame
        else {
            return Err(Refusal::OutOfPlace.into());
        };
        match arbiter {
            ArbiterKind::Diagonal => {
                let machine = made(heap, Diagonal::new(*ports)?, *mark, *first_slot)?;
                Ok(NamedMachine::Diagonal(machine))
            }
            ArbiterKind::Ripple => {
                let machine = made(heap, Ripple::new(*ports)?, *mark, *first_slot)?;
                Ok(NamedMachine::Ripple(machine))
            }
        }
    }
}

impl Playing {
    /// At the start of a recording: no machine is named yet.
    pub(crate) fn new(heap: Global) -> Playing
        ensures { stands_as result ≡ None }
    {
        Playing {
            heap,
            machine: None,
        }
    }

    /// Does the frame of a line, and writes what is answered to it. The first that is carried out is a start.
    fn play_frame(&mut self, line: &SlotLine, out: &mut Vec<u8>) -> Result<(), Unplayed>
        ensures { Answers (λ n. result_played (stands_as self.old) n line.now.frame) result (stands_as self.new) out.old.items out.new.items }
    {
        let frame = line.frame?;
        match &mut self.machine {
            Some(NamedMachine::Diagonal(machine)) => play_on(machine, &frame, out),
            Some(NamedMachine::Ripple(machine)) => play_on(machine, &frame, out),
            None => {
                self.machine = Some(NamedMachine::named(self.heap, &frame)?);
                Ok(())
            }
        }
    }

    /// Does a line, and writes what is answered to it, or why it is refused.
    pub(crate) fn play(&mut self, line: &SlotLine, out: &mut Vec<u8>) -> Result<(), AllocError>
        ensures { OnOk result (Does (line_played (stands_as self.old) line.now) (stands_as self.new) out.old.items out.new.items) }
    {
        // The one place that tells a refusal, which is written, from want of memory, which is handed on.
        match self.play_frame(line, out) {
            Ok(()) => Ok(()),
            Err(Unplayed::Refused(refusal)) => write_refusal(line.number, refusal, out),
            Err(Unplayed::NoMemory(error)) => Err(error),
        }
    }

    /// Ends the slot that is open at the end of the input.
    pub(crate) fn end(&mut self, out: &mut Vec<u8>) -> Result<(), AllocError>
        ensures { OnOk result (out.new.items ≡ out.old.items ++ last_lines (stands_as self.old)) }
    {
        match &mut self.machine {
            Some(NamedMachine::Diagonal(machine)) => end_open(machine, out),
            Some(NamedMachine::Ripple(machine)) => end_open(machine, out),
            None => Ok(()),
        }
    }
}
