// A law of runs, as the contract of a function that does nothing.

ghost use Rattle.std.specs.Prelude.{◌≡◌};
ghost use Rattle.slang_store.specs.Contents.{Contents};
ghost use Rattle.run_command.specs.Requests.{RunRequest};
ghost use Rattle.run_command.specs.Answers.{Came, Comes};

use run_buffers::{one_reading, one_refusal};
use spirv_check::an_image_has_one_first_fault;
use spirv_run::one_dispatch;
use spirv_words::words_have_one_reading;

/// A run comes to one thing at most, over what the files hold.
pub fn at_most_one_run()
    ensures { (m : Contents) (r : RunRequest) (a b : Came) → Comes m r a → Comes m r b → a ≡ b }
{
    words_have_one_reading();
    an_image_has_one_first_fault();
    one_reading();
    one_refusal();
    one_dispatch();
}
