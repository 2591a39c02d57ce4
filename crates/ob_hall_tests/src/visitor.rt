//! A runner of the tests.

ghost use Rattle.std.specs.Prelude.{◌≡◌, ◌++◌, List, All, false};
ghost use Rattle.ob_desk.specs.Desk.{Call, Reply};
ghost use Rattle.ob_session.specs.Steps.{steps_of, Leads, IsOwn};
ghost use Rattle.ob_session.specs.Clients.{said_by, stands_after, IsOneCall};
ghost use Rattle.ob_session.specs.Agreeing.{Agrees};
ghost use Rattle.ob_hall.specs.Testing.{Visits};

use ob_desk::Desk;
use ob_session::{Made, Runner, Said, Step};

/// Signs off in its first step.
#[derive(Drop)]
pub struct Visitor {
    pub client: u32,
    pub gone: bool,
}

impl Visitor {
    /// It has made no call.
    pub fn new(client: u32) -> Visitor
        ensures client { result.client ≡ client }
        ensures here { result.gone ≡ false }
    {
        Visitor {
            client,
            gone: false,
        }
    }
}

impl Runner for Visitor {
    ghost use Rattle.ob_hall.specs.Testing.{Visits};

    ghost client = { λ v. v.client };

    ghost bound = { λ v. 0 };

    ghost Plan = { Unit {0} };

    ghost plan = { λ v. tt };

    ghost fits = { λ v said. Visits v.client v.gone said };

    ghost turn = { λ plan client said steps. IsOneCall said steps };

    fn step(&mut self, desk: &mut Desk) -> (Step, Made) {
        if self.gone {
            return (Step::Done, Made::NONE);
        }
        let client = self.client;
        desk.sign_off(client);
        self.gone = true;
        (Step::Done, Made::one(Said::SignOff { client }))
    }
}
