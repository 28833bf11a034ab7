//! Tests of what becomes of a query: its words, its syntax tree, literals, trees of its variables and paths, plans, and answers by its meaning; and of command lines.
#![tactic(auto)]

#[cfg(test)]
mod answers;
#[cfg(test)]
mod command_lines;
#[cfg(test)]
mod copies;
#[cfg(test)]
mod cores;
#[cfg(test)]
mod literals;
#[cfg(test)]
mod plans;
#[cfg(test)]
mod projections;
#[cfg(test)]
mod queries;
#[cfg(test)]
mod tokens;
#[cfg(test)]
mod variables;
