// Lines that are read and lines that are written, worked out by hand from the rules.
#![tactic(auto)]

#[cfg(test)]
mod reading;
#[cfg(test)]
mod splitting;
#[cfg(test)]
mod writing;
