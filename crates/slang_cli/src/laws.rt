// A law of the answers, as the contract of a function that does nothing.

ghost use Rattle.std.specs.Prelude.{◌≡◌};
ghost use Rattle.slang_store.specs.Contents.{Contents};
ghost use Rattle.slang_cli.specs.Commands.{Request};
ghost use Rattle.slang_cli.specs.Answers.{Answer, IsAnswer};

use run_command::at_most_one_run;
use slang_parse::a_text_is_parsed_or_refused;

/// A command has at most one answer, over what the files hold. So each refusal comes exactly where its case says so.
pub fn at_most_one_answer()
    ensures { (command : Request) (m : Contents) (a b : Answer) → IsAnswer command m a → IsAnswer command m b → a ≡ b }
{
    a_text_is_parsed_or_refused();
    at_most_one_run();
}
