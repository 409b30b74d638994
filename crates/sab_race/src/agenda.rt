//! What an agent still has to do.

ghost use Rattle.std.specs.Prelude.{◌≡◌, ◌≤◌, ◌<◌, length, slice_index_or, IfOk};
ghost use Rattle.sab_race.specs.Moves.{moves_of};
ghost use Rattle.sab_race.specs.Agenda.{unmade, after_next, left_in};
ghost use Rattle.sab_sim.specs.declared.sim.TheConstants.Sim.{MAX_ENTRIES};

use crate::script_moves::{MAX_SPINS, moves};
use sab_sim::{Move, Plan, Script};
use std::alloc::{AllocError, Global};
use std::marker::Model;

/// One agent's moves, and how many of them were made.
#[derive(Drop)]
pub struct Agenda {
    moves: Vec<Move>,
    made: usize,
}

impl Model for Agenda {
    ghost use Rattle.std.specs.Prelude.{◌≤◌, length};
    ghost use Rattle.sab_sim.specs.declared.sim.TheConstants.Sim.{MAX_ENTRIES};
    ghost use Rattle.sab_race.specs.Agenda.{AgendaParts};

    ghost Value = { AgendaParts };

    ghost view = { λ agenda. record { moves = agenda.moves.items; made = agenda.made } };

    ghost invariant = { λ agenda. length agenda.moves.items ≤ MAX_ENTRIES };
}

impl Agenda {
    /// What an agent has to do for its script.
    pub fn new(alloc: Global, script: &Script, agent: u32, spins: u32) -> Result<Agenda, AllocError>
        requires calls { length script.now.calls ≤ Plan.MAX_CALLS }
        requires spins { spins ≤ MAX_SPINS }
        ensures { IfOk result (λ agenda. agenda ≡ unmade (moves_of script.now.calls agent spins)) }
    {
        let moves = moves(alloc, script, agent, spins)?;
        Ok(Agenda { moves, made: 0 })
    }

    /// How many moves are left.
    pub fn left(&self) -> u32
        ensures { result ≡ left_in self.now }
    {
        self.moves.len().saturating_sub(self.made) as u32
    }

    /// The next move, and its number.
    pub fn next(&self) -> (u32, Move)
        requires { 0 < left_in self.now }
        ensures { (result.0 ≡ self.now.made) × (result.1 ≡ slice_index_or self.now.moves self.now.made result.1) }
    {
        (self.made as u32, self.moves[self.made])
    }

    /// Takes the next move, which then is made.
    pub fn take_next(&mut self) -> Move
        requires { 0 < left_in self.old }
        ensures next { result ≡ slice_index_or self.old.moves self.old.made result }
        ensures made { self.new ≡ after_next self.old }
    {
        let next = self.moves[self.made];
        self.made += 1;
        next
    }

    /// All its moves, once more.
    pub fn copy_moves(&self, alloc: Global) -> Result<Vec<Move>, AllocError>
        ensures moves { IfOk result (λ moves. moves.items ≡ self.now.moves) }
        ensures most { IfOk result (λ moves. length moves.items ≤ MAX_ENTRIES) }
    {
        self.moves.to_vec(alloc)
    }
}
