//! Tests of the command's libraries that no run of the program can stand for: a disk of whose calls one fails. They stand in a
//! crate of their own, above what they try: a crate with tests is proved twice.
#![tactic(auto)]

#[cfg(test)]
mod disk;
#[cfg(test)]
mod items;
#[cfg(test)]
mod writing;
