// Tests of what other crates may call and no program here does, as another crate would call it.
#![tactic(auto)]

#[cfg(test)]
mod tests;
