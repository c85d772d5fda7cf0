//! Warriors.

ghost use Rattle.std.specs.{Prelude.{◌≡◌, ◌↔◌, IsTrue}, Option.SomeIff};
ghost use Rattle.war_types.specs.Warrior.{warrior_parts, Fits, IsWarrior};

use crate::instr::Instr;
use crate::settings::Settings;
use crate::title::Title;
use std::alloc::Allocator;
use std::marker::Model;

/// A warrior: its instructions, the one that it begins at, its name and its author.
#[derive(Debug, Drop)]
pub struct Warrior<A: Allocator> {
    code: Vec<Instr, A>,
    start: u16,
    name: Title,
    author: Title,
}

impl<A: Allocator> Model for Warrior<A> {
    ghost use Rattle.war_types.specs.Warrior.{WarriorParts, warrior_parts, IsWarrior};

    ghost Value = { WarriorParts };

    ghost view = { λ w. warrior_parts w.code.items w.start w.name w.author };

    ghost invariant = { λ w. IsWarrior (warrior_parts w.code.items w.start w.name w.author) };
}

impl<A: Allocator> Warrior<A> {
    /// The warrior of these parts, if it fits the settings. It needs 1 to `length` instructions, each number below the
    /// core size, and a start that is one of its instructions.
    pub fn new(
        code: Vec<Instr, A>,
        start: u16,
        name: Title,
        author: Title,
        settings: &Settings,
    ) -> Option<Warrior<A>>
        ensures { let parts = warrior_parts code.items start name author in SomeIff result (Fits settings.now parts) parts }
    {
        let core = settings.core();
        if usize::from(start) >= code.len() || code.len() > usize::from(settings.length()) {
            return None;
        }
        if !code.iter().all(|i| i.a < core && i.b < core) {
            return None;
        }
        Some(Warrior {
            code,
            start,
            name,
            author,
        })
    }

    /// The instructions, at least one.
    pub fn code(&self) -> &[Instr]
        ensures value { result.now ≡ self.now.code }
        ensures warrior { IsWarrior self.now }
    {
        self.code.as_slice()
    }

    /// The instruction that the warrior begins at, counted from 0.
    pub fn start(&self) -> u16
        ensures value { result ≡ self.now.start }
        ensures warrior { IsWarrior self.now }
    {
        self.start
    }

    /// The warrior's name.
    pub fn name(&self) -> &Title
        ensures { result.now ≡ self.now.name }
    {
        &self.name
    }

    /// The name of the warrior's author.
    pub fn author(&self) -> &Title
        ensures { result.now ≡ self.now.author }
    {
        &self.author
    }

    /// Whether the warrior fits the settings, as `new` asks.
    pub fn fits(&self, settings: &Settings) -> bool
        ensures { IsTrue result ↔ Fits settings.now self.now }
    {
        let core = settings.core();
        self.code.len() <= usize::from(settings.length())
            && self.code.iter().all(|i| i.a < core && i.b < core)
    }
}
