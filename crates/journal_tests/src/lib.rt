// Journals and super-journals, run: written, judged whole, torn and with bytes flipped, and kept on a card.
#![tactic(auto)]

#[cfg(test)]
mod judged;
#[cfg(test)]
mod kept;
