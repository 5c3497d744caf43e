//! What an answer makes of what an instance knows.
ghost use Rattle.std.specs.Prelude.{◌≡◌, None, Some, IfOk, OnErr, OnOk};
ghost use Rattle.std.specs.Option.{option_map_or};
ghost use Rattle.etcd_answers.specs.Verdicts.{found_at};
ghost use Rattle.etcd_answers.specs.declared.verdict.Verdict.TheVariants.{Unknown as NotKnown};
ghost use Rattle.etcd_terms.specs.Seats.{ahead_of, heard, judged, kept, settled, verdict_of};

use crate::asking::{filled, left_at, up};
use crate::seat::{Ahead, Seat, Wish};
use crate::verdicts::leads_verdict;
use etcd_answers::{
    Answer, Found, Verdict, forget_verdict, remove_verdict, switch_verdict, write_verdict,
};
use std::alloc::{AllocError, Global};

impl Seat {
    /// An answer to what is asked came.
    pub fn hear(&mut self, alloc: Global, term: &str, answer: &Answer) -> Result<(), AllocError>
        ensures heard { OnOk result (self.new ≡ heard term.now self.old answer.now) }
        ensures lost { OnErr result (self.new ≡ self.old) }
    {
        let verdict = self.verdict(alloc, term, answer)?;
        self.judge(answer, verdict);
        Ok(())
    }

    fn verdict(&self, alloc: Global, term: &str, answer: &Answer) -> Result<Verdict, AllocError>
        ensures { IfOk result (λ v. v ≡ option_map_or (verdict_of term.now self.now answer.now) self.now.asked NotKnown) }
    {
        match &self.asked {
            Some(wish) => self.verdict_of(alloc, term, answer, wish),
            None => Ok(Verdict::Unknown),
        }
    }

    fn verdict_of(
        &self,
        alloc: Global,
        term: &str,
        answer: &Answer,
        wish: &Wish,
    ) -> Result<Verdict, AllocError>
        ensures { IfOk result (λ v. v ≡ verdict_of term.now self.now answer.now wish.now) }
    {
        match wish {
            Wish::Append(block) | Wish::Fill(block) => {
                Ok(write_verdict(answer, term, block.as_slice()))
            }
            Wish::Cut => Ok(remove_verdict(answer, term, self.torn)),
            Wish::Look => leads_verdict(alloc, answer, term, self.going),
            Wish::Clear => Ok(remove_verdict(answer, term, left_at(self.ahead))),
            Wish::Switch => switch_verdict(alloc, answer, term, self.going),
            Wish::Forget(_) => Ok(forget_verdict(answer, term)),
        }
    }

    fn judge(&mut self, answer: &Answer, verdict: Verdict)
        ensures { self.new ≡ option_map_or (λ wish. judged self.old answer.now wish verdict) self.old.asked self.old }
    {
        if verdict == Verdict::Unknown {
            return;
        }
        if let Some(wish) = self.asked.take() {
            if verdict == Verdict::Kept {
                self.keep(answer, &wish);
            } else {
                self.is_over = true;
            }
            drop(wish);
        }
    }

    /// What is not asked any more is done.
    fn keep(&mut self, answer: &Answer, wish: &Wish)
        requires { self.old.asked ≡ None }
        ensures { self.new ≡ kept self.old answer.now wish.now }
    {
        match wish {
            Wish::Append(_) => self.next = up(self.next),
            Wish::Cut => self.torn = 0,
            Wish::Look => self.ahead = ahead_of(answer.found(2)),
            Wish::Clear => self.ahead = Ahead::Has(0),
            Wish::Fill(_) => self.ahead = Ahead::Has(up(filled(self.ahead))),
            Wish::Switch => {
                self.going = up(self.going);
                self.next = filled(self.ahead);
                self.torn = 0;
                self.ahead = Ahead::Unknown;
            }
            Wish::Forget(_) => {}
        }
    }
}

fn ahead_of(found: &[Found]) -> Ahead
    ensures { result ≡ ahead_of found.now }
{
    match found {
        [first, ..] => Ahead::Left(first.created),
        [] => Ahead::Has(0),
    }
}
