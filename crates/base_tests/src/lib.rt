// Examples of limits and of tables of readings, worked out from the rules.
#![tactic(auto)]

mod limit_cases;
mod table_cases;
#[cfg(test)]
mod written;
