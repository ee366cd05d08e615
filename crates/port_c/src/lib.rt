// The calls for programs in other languages; ports/c/kerzhoma.h declares them for C. A slice arrives as pointer and length.
#![tactic(auto)]

mod cases;
mod counts;
mod documents;
mod making;
mod places;
mod run;
mod setting;
mod sheets;
mod tables;
