//! Tests of the libraries by what they export, as whoever uses them calls it. They are a crate of their own, since the
//! functions of a crate are proved once more with the tests that stand in it.
#![tactic(auto)]

#[cfg(test)]
mod answers;
#[cfg(test)]
mod devices;
#[cfg(test)]
mod lines;
#[cfg(test)]
mod networks;
#[cfg(test)]
mod rows;
#[cfg(test)]
mod session_groups;
#[cfg(test)]
mod session_growths;
#[cfg(test)]
mod session_lines;
#[cfg(test)]
mod session_marks;
#[cfg(test)]
mod sessions;
#[cfg(test)]
mod texts;
