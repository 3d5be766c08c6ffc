// A command as it is judged: its bytes, and the facts of it that are worked out once in a call.
ghost use Rattle.std.specs.Prelude.{◌≡◌, List, ℕ};
ghost use Rattle.judge.specs.Command.{facts_of, is_bare, is_change};
ghost use Rattle.judge.specs.Judgement.{rules_for};

use super::facts::{Facts, facts_of};
use std::marker::Model;

// Contracts see a command as its bytes. That the facts are those of the bytes holds of every one.
#[derive(Drop)]
pub struct Command<'a> {
    bytes: &'a [u8],
    facts: Facts,
}

impl<'a> Model for Command<'a> {
    ghost Value = { List ℕ };

    ghost view = { λ c. c.bytes.now };

    ghost invariant = { λ c. c.facts ≡ facts_of c.bytes.now };
}

impl<'a> Command<'a> {
    pub fn new(bytes: &'a [u8]) -> Command<'a>
        ensures { result ≡ bytes.now }
    {
        let facts = facts_of(bytes);
        Command { bytes, facts }
    }

    pub fn bytes(&self) -> &'a [u8]
        ensures { result.now ≡ self.now }
    {
        self.bytes
    }

    pub fn facts(&self) -> Facts
        ensures { result ≡ facts_of self.now }
    {
        self.facts
    }

    // Is it the CDB alone?
    #[tactic(auto, unfolding(crate::specs::Command::is_bare))]
    pub fn is_bare(&self) -> bool
        ensures { result ≡ is_bare self.now }
    {
        self.bytes.len() == model::cdb_len(self.facts.code) as usize
    }

    // Is it Change Master Key?
    #[tactic(auto, unfolding(crate::specs::Command::is_change))]
    pub fn is_change(&self) -> bool
        ensures { result ≡ is_change self.now }
    {
        let facts = self.facts();
        facts.code == model::PROTOCOL_OUT && facts.page == model::CHANGE_MASTER
    }

    // Does CAPKEY rule, on the unit with this record?
    #[tactic(auto, unfolding(crate::specs::Judgement::rules_for))]
    pub fn is_ruled(&self, own: &[u8]) -> bool
        ensures { result ≡ rules_for own.now self.now }
    {
        units::method_of(own) == 1 || model::is_master(self.facts().need)
    }
}
