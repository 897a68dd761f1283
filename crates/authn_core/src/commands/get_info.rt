//! authenticatorGetInfo (CTAP 2.1, section 6.4).

ghost use Rattle.std.specs.Prelude.{None};
ghost use Rattle.ctap_message.specs.Responses.{info_answer};
ghost use Rattle.authn_core.specs.State.{respond};
ghost use Rattle.authn_core.specs.Views.{TakesTurn};

use crate::authenticator::{Core, Turn};
use cred_table::Table;
use ctap_message::{Answer, write_info};

impl<T: Table<C>, const C: usize> Core<T, C> {
    /// Responds with the authenticator's capabilities.
    pub(crate) fn get_info(&mut self, answer: &mut Answer) -> Turn
        ensures { TakesTurn self.old self.new result answer.new.items
            (respond self.old.core.state.rows None (info_answer self.old.core.setup.aaguid)) }
    {
        self.pending.clear();
        self.work = None;
        write_info(&self.config.aaguid, answer);
        Turn::Answer
    }
}
