// The machine. Its words stand in one row, as those of a shared table: the flags, the in-words and
// the out-words. All room is taken at opening.
ghost use Rattle.std.specs.Prelude.{◌≡◌, ◌<◌, ◌+◌, ◌-◌, ◌^◌, length, replicate, IfOk};
ghost use Rattle.ground_program.specs.Bounds.{IsPairOver};
ghost use Rattle.normal_program.specs.Limit.{IsNormal};
ghost use Rattle.anytime_core.specs.Bits.{IsPairOf};
ghost use Rattle.anytime_core.specs.Machine.{opening, after, actor_at, candidates_of};
ghost use Rattle.anytime_core.specs.Legal.{HasActor, IsLegal, steps_by};
ghost use Rattle.anytime_core.specs.Laws.{IsSound, EachEncloses};

use crate::actors::{look_at, meet_word, newcomers, put_bits, see_places, step_once, tell};
use crate::row::{row_length, words_over, zeros};
use crate::{Actor, Event, show_in_bits, show_out_bits};
use clause_store::Short;
use ground_program::{Mode, Pair};
use item_list::{List, NoMemory};
use normal_program::Normal;
use std::alloc::Global;
use std::marker::Model;
use std::snapshot::Snapshot;

/// The state of a run as its actors make it. Contracts see it as a `Machine`.
#[derive(Drop)]
pub struct Core {
    about: Snapshot<Normal>,
    mode: Mode,
    room: u32,
    candidates: u32,
    words: List<u64>,
    log: Vec<Short>,
    actors: Vec<Actor>,
}

impl Model for Core {
    ghost use Rattle.std.specs.Prelude.{◌≡◌, ◌≤◌, length, vec_capacity, vec_len};
    ghost use Rattle.anytime_core.specs.Machine.{Machine, machine_of};
    ghost use Rattle.anytime_core.specs.Laws.{IsSound};

    ghost Value = { Machine };

    ghost view = { λ core. machine_of core.about.value core.mode core.room core.words
        core.log.items core.actors.items };

    ghost invariant = { λ core. (core.candidates ≡ length core.about.value.names)
        × (core.room ≤ vec_capacity core.log)
        × (vec_len core.log ≡ length core.log.items)
        × IsSound (machine_of core.about.value core.mode core.room core.words
        core.log.items core.actors.items) };
}

impl Core {
    /// The machine with no event so far, with so many actors and room for so many clauses. The
    /// other calls take no memory.
    pub fn open(
        alloc: Global,
        normal: &Normal,
        mode: Mode,
        actors: u32,
        log_room: u32,
    ) -> Result<Core, NoMemory>
        requires { IsNormal normal.now }
        ensures { IfOk result (λ core. core ≡ opening normal.now mode actors log_room) }
    {
        let candidates = normal.names.len() as u32;
        let count = row_length(candidates);
        let words = zeros(alloc, count)?;
        let log = Vec::with_capacity(alloc, log_room as usize)?;
        let actors = newcomers(alloc, count, actors)?;
        Ok(Core {
            about: Snapshot::of(normal),
            mode,
            room: log_room,
            candidates,
            words,
            log,
            actors,
        })
    }

    /// The machine is sound, as contracts know it then. It does nothing when it runs.
    pub fn vouch(&self)
        ensures sound { IsSound self.now }
        ensures encloses { EachEncloses self.now }
    {
        let _ = &self.room;
    }

    /// The event comes next.
    pub fn step(&mut self, event: Event)
        requires legal { IsLegal self.old event }
        requires few { (actor_at self.old (steps_by event)).steps < 2 ^ 64 - 1 }
        ensures { self.new ≡ after self.old event }
    {
        match event {
            Event::ReportIn { actor, word, mask } => {
                let place = 1 + word as usize;
                put_bits(&mut self.words, &mut self.actors, event, actor, place, mask);
            }
            Event::ReportOut { actor, word, mask } => {
                let place = 1 + words_over(self.candidates) + word as usize;
                put_bits(&mut self.words, &mut self.actors, event, actor, place, mask);
            }
            Event::ReportState { actor, coherent } => {
                let mask = if coherent { 1 } else { 2 };
                put_bits(&mut self.words, &mut self.actors, event, actor, 0, mask);
            }
            Event::ReadWord { actor, word } => {
                let found = *self.words.get(word as usize);
                meet_word(&mut self.actors, event, actor, word as usize, found);
            }
            Event::Append { actor, clause } => {
                self.log.push_reserved(clause);
                see_places(&mut self.actors, event, actor, self.log.len() as u32);
            }
            Event::ReadPlace { actor, place } => {
                look_at(&mut self.actors, event, actor, place, self.log.len() as u32);
            }
            Event::Copy { from, to } => {
                tell(&mut self.actors, to, from);
                step_once(&mut self.actors, event, from);
            }
            Event::Meet { into, from } => {
                tell(&mut self.actors, into, from);
                step_once(&mut self.actors, event, into);
            }
        }
    }

    /// The pair that the actor has seen.
    pub fn pair_of(&self, actor: u32, pair: &mut Pair)
        requires actor { HasActor self.now actor }
        requires over { IsPairOver (candidates_of self.now) pair.old }
        ensures { IsPairOf (candidates_of self.now) (actor_at self.now actor).seen pair.new }
    {
        let sides = words_over(self.candidates);
        let seen = self.actors[actor as usize].seen.as_slice();
        for word in 0..sides {
            show_in_bits(seen[1 + word], 64 * word, &mut pair.lower);
            show_out_bits(seen[1 + sides + word], 64 * word, &mut pair.upper);
        }
    }

    /// The number of the actor's steps.
    pub fn steps_of(&self, actor: u32) -> u64
        requires { HasActor self.now actor }
        ensures { result ≡ (actor_at self.now actor).steps }
    {
        self.actors[actor as usize].steps
    }
}
