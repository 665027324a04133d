// The edges of a transaction's memory and of lists of names, run and compared.
#![tactic(auto)]

#[cfg(test)]
mod memory_edges;
#[cfg(test)]
mod name_edges;
#[cfg(test)]
mod page_edges;
