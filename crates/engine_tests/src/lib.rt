//! Tests of the engines, from the bytes that they read to those that they write. They are a crate of their own, as the
//! tests of the libraries below are: a crate is proved once more with the tests that stand in it.
#![tactic(auto)]

#[cfg(test)]
mod answers;
#[cfg(test)]
mod devices;
#[cfg(test)]
mod groups;
#[cfg(test)]
mod growths;
#[cfg(test)]
mod large_texts;
#[cfg(test)]
mod marks;
#[cfg(test)]
mod problems;
#[cfg(test)]
mod running;
#[cfg(test)]
mod sessions;
