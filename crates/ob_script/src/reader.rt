//! What was read so far of a script.

ghost use Rattle.std.specs.Prelude.{◌≡◌, IfOk, MatchBool, Some, None, if◌then◌else◌};
ghost use Rattle.ob_script.specs.declared.line.Line.{Line};
ghost use Rattle.ob_script.specs.Script.{step, start, CanNotStand, AcceptsLine};
ghost use Rattle.ob_script.specs.ScriptViews.{state_of};

use crate::line::{Ask, Ending, Line, ScriptTxn};
use crate::reading::line_of;
use std::alloc::{AllocError, Global};

/// What was read so far of a script.
#[derive(Drop)]
pub struct Reader {
    pub client: u32,
    pub clients: Vec<u32>,
    pub done: Vec<ScriptTxn>,
    pub open_asks: Option<Vec<Ask>>,
}

impl Reader {
    /// Nothing was read yet.
    pub fn new(alloc: Global) -> Reader
        ensures { state_of result ≡ start }
    {
        Reader {
            client: 0,
            clients: Vec::new(alloc),
            done: Vec::new(alloc),
            open_asks: None,
        }
    }

    fn take_client(&mut self, client: u32) -> Result<bool, AllocError>
        ensures { IfOk result (λ good. step (state_of self.old) (Line.Client client)
            ≡ (if good then Some (state_of self.new) else None)) }
    {
        if self.open_asks.is_some() || client <= self.client {
            return Ok(false);
        }
        self.clients.push(client)?;
        self.client = client;
        Ok(true)
    }

    fn take_begin(&mut self, alloc: Global) -> bool
        ensures { step (state_of self.old) Line.Begin
            ≡ (if result then Some (state_of self.new) else None) }
    {
        if self.open_asks.is_some() || self.client == 0 {
            return false;
        }
        self.open_asks = Some(Vec::new(alloc));
        true
    }

    fn take_ask(&mut self, ask: Ask) -> Result<bool, AllocError>
        ensures { IfOk result (λ good. step (state_of self.old) (Line.Asks ask)
            ≡ (if good then Some (state_of self.new) else None)) }
    {
        let Some(asks) = &mut self.open_asks else {
            return Ok(false);
        };
        asks.push(ask)?;
        Ok(true)
    }

    fn take_end(&mut self, ending: Ending) -> Result<bool, AllocError>
        ensures { IfOk result (λ good. step (state_of self.old) (Line.Ends ending)
            ≡ (if good then Some (state_of self.new) else None)) }
    {
        let Some(asks) = self.open_asks.take() else {
            return Ok(false);
        };
        let client = self.client;
        self.done.push(ScriptTxn {
            client,
            asks,
            ending,
        })?;
        Ok(true)
    }

    /// Takes the line with this text. Whether it may stand there.
    pub fn take_text(&mut self, alloc: Global, keys: u32, text: &[u8]) -> Result<bool, AllocError>
        ensures { IfOk result (λ good. MatchBool good
            (AcceptsLine keys (state_of self.old) text.now (state_of self.new))
            (CanNotStand keys (state_of self.old) text.now)) }
    {
        match line_of(keys, text) {
            None => Ok(false),
            Some(line) => self.take(alloc, line),
        }
    }

    fn take(&mut self, alloc: Global, line: Line) -> Result<bool, AllocError>
        ensures { IfOk result (λ good. step (state_of self.old) line
            ≡ (if good then Some (state_of self.new) else None)) }
    {
        match line {
            Line::Blank => Ok(true),
            Line::Client { client } => self.take_client(client),
            Line::Begin => Ok(self.take_begin(alloc)),
            Line::Asks { ask } => self.take_ask(ask),
            Line::Ends { ending } => self.take_end(ending),
        }
    }
}
