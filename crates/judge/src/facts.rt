// What is worked out of a command once in a call.
ghost use Rattle.std.specs.Prelude.{◌≡◌};
ghost use Rattle.judge.specs.Command.{facts_of};

use model::Need;

// The command's code, its page, and what it needs.
#[derive(Clone, Copy)]
pub struct Facts {
    pub code: u8,
    pub page: u32,
    pub need: Need,
}

// The facts of a command. This is the one look at the table of commands in a call.
#[tactic(auto, unfolding(crate::specs::Command::need_for))]
pub fn facts_of(command: &[u8]) -> Facts
    ensures { result ≡ facts_of command.now }
{
    let code = wire::at(command, 0);
    let page = wire::number::<2>(command, 2) as u32;
    let need = model::need_of(code, page);
    Facts { code, page, need }
}
