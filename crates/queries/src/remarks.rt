//! What is said beside the answer to a question.

use crate::question::Question;
use capgrant::Verdict;
use policy_analysis::left_to_client;
use release_rules::{Asked, Others, answers_beside};
use std::alloc::{AllocError, Global};
use texts::{answer_object, beside_lines};

impl Question {
    ghost use Rattle.std.specs.Prelude.{◌≡◌, IfOk, map};
    ghost use Rattle.release_rules.specs.Beside.{others_of};
    ghost use Rattle.queries.specs.Remarks.{asked_of, mds_asked, remarked_answer, remarked_object};

    /// The line that answers the question, with the path in double quotes where it has to be, and behind it lines for what the grant
    /// that allows leaves to the client, and for where the MDS of a release answers otherwise by the text that the grants were read in.
    /// Each ends in a line feed. Only memory can be missing.
    pub fn remarked_answer(&self, alloc: Global, text: &[u8]) -> Result<Vec<u8>, AllocError>
        ensures { IfOk result (λ lines. lines.items ≡ remarked_answer text.now self.now) }
    {
        let names = self.path.names(alloc)?;
        let names = names.as_slice();
        let verdict = self.judge(names);
        let asked = self.asked(names);
        let left = left_to_client(&asked, &self.grants);
        let others = self.others(alloc, text, &verdict)?;
        beside_lines(alloc, &asked, &verdict, left, &others)
    }

    /// The object that answers the question and says all that `remarked_answer` says, with the number of a line, where it has one. It is a line of JSON, with its line feed. Only
    /// memory can be missing.
    pub fn remarked_object(
        &self,
        alloc: Global,
        number: Option<u64>,
        text: &[u8],
    ) -> Result<Vec<u8>, AllocError>
        ensures { IfOk result (λ line. line.items ≡ remarked_object number text.now self.now) }
    {
        let names = self.path.names(alloc)?;
        let names = names.as_slice();
        let verdict = self.judge(names);
        let asked = self.asked(names);
        let left = left_to_client(&asked, &self.grants);
        let others = self.others(alloc, text, &verdict)?;
        answer_object(alloc, number, &asked, &verdict, left, &others)
    }

    // What each release answers otherwise than by this verdict.
    fn others(&self, alloc: Global, text: &[u8], verdict: &Verdict) -> Result<Others, AllocError>
        ensures { IfOk result (λ others. others ≡ others_of (mds_asked self.now) self.now.access verdict.now text.now) }
    {
        let question = release_rules::Question {
            fs: &self.fs,
            caller: &self.caller,
            path: &self.path,
            attr: &self.attr,
            asked: Asked::of_access(self.access),
            address: None,
        };
        answers_beside(alloc, text, &question, self.access, verdict)
    }

    // What is asked of each grant, by the names of the path.
    fn asked<'a>(&'a self, names: &'a [&'a [u8]]) -> capgrant::Question<'a>
        requires { map (λ name. name.now) names.now ≡ self.now.path }
        ensures { result ≡ asked_of self.now }
    {
        capgrant::Question {
            fs: &self.fs,
            caller: &self.caller,
            path: names,
            attr: &self.attr,
            access: self.access,
        }
    }
}
