// The edges of the cards: limits of names, files and slots, run and compared.
#![tactic(auto)]

#[cfg(test)]
mod answers;
#[cfg(test)]
mod delayed_edges;
#[cfg(test)]
mod direct_edges;
