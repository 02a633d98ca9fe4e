//! How a command says what it says last.
ghost use Rattle.std.specs.Prelude.{◌≡◌, ◌≢◌};
ghost use Rattle.tf_numbers.specs.Numbers.{Rises};
ghost use Rattle.tf_desk.specs.State.{Says};
ghost use Rattle.tf_report.specs.Closing.{ClosesWith};

use crate::statuses::UNSAID;
use tf_desk::Desk;

/// Says a command's message, and answers the status: the one that belongs to it, or that of a failed output.
pub fn close<K: Desk>(message: &[u8], status: u8, desk: &mut K) -> u8
    ensures closes { ClosesWith (K.state desk.old).shown message.now status (K.state desk.new).shown result }
    ensures says { Says message.now (K.state desk.old) (K.state desk.new) }
    ensures unsaid { result ≡ UNSAID → status ≢ UNSAID
        → Rises (K.state desk.old).out_faults (K.state desk.new).out_faults }
    ensures status { result ≢ UNSAID → result ≡ status }
{
    match desk.say(message) {
        Ok(()) => status,
        Err(_) => UNSAID,
    }
}
