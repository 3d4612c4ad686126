// Tests of the parameter block at its limits, as tables.
#![tactic(auto)]

#[cfg(test)]
mod tests;
