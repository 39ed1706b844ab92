// Plays whose answers were worked out by hand from the rules, and the remembered sets on their own.
#![tactic(auto)]

#[cfg(test)]
mod limits;
#[cfg(test)]
mod marks;
#[cfg(test)]
mod outputs;
#[cfg(test)]
mod refusals;
#[cfg(test)]
mod remembered;
#[cfg(test)]
mod trains;
#[cfg(test)]
mod words;
