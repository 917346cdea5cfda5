// The examples by what they ask.
mod classes;
mod coverings;
mod graphs;
mod joins;
mod notation;
mod tidyings;
mod words;
