// What people ask of the command crpd: the words of its command line, and how it ends.
#![tactic(auto)]

// The words after a command's name, sorted into options and others.
pub mod arguments;
// How a command ends: the exit status, and what standard error is told.
pub mod ending;
