//! Kill plans as finite maps.
#![tactic(auto)]

ghost use Rattle.std.specs.Prelude.{◌≡◌, ◌≢◌, ◌+◌, ◌≤◌, ◌<◌, [], length, map, Some, IfOk, IfErr, OnOk};
ghost use Rattle.dc_kills.specs.Entries.{entry_from};
ghost use Rattle.dc_kills.specs.Plans.{IsInOrder, stop_in};
ghost use Rattle.dc_kills.specs.Faults.{fault_by, fault_of, IsPlanOf};
ghost use Rattle.dc_kills.specs.Reading.{GainsLine};
ghost use Rattle.dc_kills.specs.declared.plan.PlanError.TheVariants.{Memory};

use crate::Stop;
use crate::entries::read_entry;
use dc_path::first_line;
use std::alloc::Global;
use std::collections::BTreeMap;
use std::marker::Model;

/// The most lines that a kill plan may have.
pub const MAX_LINES: u32 = 65_536;

/// Why a text is no kill plan. Lines count from 1.
#[derive(Clone, Copy, Debug, PartialEq, Eq)]
pub enum PlanError {
    /// The line is of no such form, or is the 65,537th.
    BadLine { line: u32 },
    /// The attempt of the line stood in an earlier line.
    Repeated { line: u32 },
    /// Memory ran out. No clause says when this comes.
    Memory,
}

/// A kill plan, seen as the list of its entries: an attempt, which is a piece and a number, and its stop.
///
/// The entries stand in the order of attempts, by piece and then by number, and each attempt stands once.
#[derive(Drop)]
pub struct KillPlan {
    stops: BTreeMap<(u32, u32), Stop>,
}

impl Model for KillPlan {
    ghost use Rattle.std.specs.Prelude.{List};
    ghost use Rattle.dc_kills.specs.Entries.{Entry};

    ghost Value = { List Entry };

    ghost view = { λ p. p.stops.entries };
}

// Adds the entry of a line, which has this number, to the entries of the lines before.
fn add_line(
    stops: &mut BTreeMap<(u32, u32), Stop>,
    number: u32,
    line: &[u8],
) -> Result<(), PlanError>
    ensures ok { OnOk result (GainsLine stops.old.entries stops.new.entries line.now) }
    ensures err { IfErr result (λ e. e ≢ Memory → fault_by number (stop_in stops.old.entries) (entry_from line.now) ≡ Some e) }
{
    let Some((attempt, stop)) = read_entry(line) else {
        return Err(PlanError::BadLine { line: number });
    };
    match stops.insert(attempt, stop) {
        Ok(None) => Ok(()),
        Ok(Some(_)) => Err(PlanError::Repeated { line: number }),
        Err(_) => Err(PlanError::Memory),
    }
}

impl KillPlan {
    /// The plan that a text spells.
    ///
    /// Each line ends with a line feed, which may be missing at the last. A line is `PIECE ATTEMPT STEP` or
    /// `PIECE ATTEMPT STEP worker`, with one blank, a space or a tab, between two parts. Numbers are decimal
    /// digits, leading zeros allowed: a piece up to 8,388,607, an attempt from 1 to 4,294,967,295, and a step up
    /// to 18,446,744,073,709,551,615. `worker` says that the worker stops too.
    ///
    /// # Errors
    ///
    /// The first line with a fault decides:
    ///
    /// - `BadLine`, where the line is of no such form or is the 65,537th;
    /// - else `Repeated`, where its piece and attempt stood in an earlier line.
    ///
    /// `Memory` may come in the place of any answer.
    pub fn read(alloc: Global, text: &[u8]) -> Result<KillPlan, PlanError>
        ensures plan { IfOk result (IsPlanOf text.now) }
        ensures refused { IfErr result (λ e. e ≢ Memory → fault_of text.now ≡ Some e) }
        ensures ordered { IfOk result IsInOrder }
        ensures few { IfOk result (λ plan. length plan ≤ 65536) }
    {
        let mut stops = BTreeMap::new(alloc);
        let mut rest = text;
        let mut number = 0u32;
        while !rest.is_empty() {
            let (line, others) = first_line(rest);
            number += 1;
            if number > MAX_LINES {
                return Err(PlanError::BadLine { line: number });
            }
            add_line(&mut stops, number, line)?;
            rest = others;
        }
        Ok(KillPlan { stops })
    }

    /// The plan that stops nothing. It takes no memory, and cannot fail.
    pub fn none(alloc: Global) -> KillPlan
        ensures { result ≡ [] }
    {
        KillPlan {
            stops: BTreeMap::new(alloc),
        }
    }

    /// Where an attempt at a piece is stopped; `None` where it is not. It takes no memory.
    ///
    /// A look-up costs the logarithm of the number of entries.
    pub fn stop_at(&self, piece: u32, attempt: u32) -> Option<Stop>
        ensures { result ≡ stop_in self.now (piece, attempt) }
    {
        self.stops.get(&(piece, attempt)).copied()
    }
}
