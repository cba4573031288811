//! Cases of the texts of answers that no script brings about: where memory is missing, and what no client is told of.
#![tactic(auto)]

ghost use Rattle.std.specs.Prelude.{◌≡◌, ◌++◌, [], ◌∷◌, codes};
ghost use Rattle.capexplain.specs.Replies.{reply_text};
ghost use Rattle.capstep.specs.declared.outcome.Message.TheVariants.{Ended};
ghost use Rattle.capstep.specs.declared.outcome.Outcome.TheVariants as outcome;
ghost use Rattle.capstep.specs.declared.reply.Reply.TheVariants.{Messages, OutOfMemory};

/// Want of memory has a text, as an answer and as the end of a request. So has the end of a request whose session ended before, under the last number.
pub fn what_no_script_brings_about()
    ensures no_memory { reply_text OutOfMemory ≡ codes "out-of-memory\n" }
    ensures ended { reply_text (Messages (Ended (record { 0 = 5 }) outcome.OutOfMemory ∷ Ended (record { 0 = 18446744073709551615 }) outcome.Dropped ∷ []))
        ≡ codes "messages 2\n" ++ codes "  ended 5 out-of-memory\n" ++ codes "  ended 18446744073709551615 dropped\n" }
{}
