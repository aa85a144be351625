// Questions in batches: many instants or slots asked of one row in one call, so that rule 13 is passed once for them
// all. Each answer is that of the single question, as a number for C: 1 or 0, or a refusal's number below zero; what else
// there is to say stands at the same place of the other lists. A row that is not sound gives 13 to each question.
//
// Nothing is asked of the caller, and the lists may have any lengths. A call answers how many questions there are; where
// one of the lent lists is shorter than the list of questions it is refused with 17, and all of them are zero. Behind
// the answers a longer list is zero.

#![tactic(auto)]

pub mod instants;
pub mod lateness;
pub mod slots;
