// The set, run: with a power failure or a device fault at each call of the card, with damaged files, and
// at the edges of its calls; the file that each look of a recovery tells; and the numbers of its refusals.
#![tactic(auto)]

#[cfg(test)]
mod calls;
#[cfg(test)]
mod contents;
#[cfg(test)]
mod cuts;
#[cfg(test)]
mod damaged;
#[cfg(test)]
mod faults;
#[cfg(test)]
mod foreign;
#[cfg(test)]
mod numbers;
#[cfg(test)]
mod scenes;
#[cfg(test)]
mod script;
#[cfg(test)]
mod told;
#[cfg(test)]
mod trials;
