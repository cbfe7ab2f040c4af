//! The text that the form `make N` prints, and the generated theory as a value, with no Rust data.
//! Promises that the theory has N procedures and eight steps for each. Stands on model_commands and
//! model_files.
#![tactic(auto)]

ghost use Rattle.std.specs.Prelude.{◌≡◌, ℕ, ◌*◌, length};
ghost use Rattle.model_files.specs.FileLimits.{step_count};
ghost use Rattle.model_generator.specs.Generated.{generated_theory};

/// The theory for a number has so many procedures, and eight times as many steps.
pub fn the_theory_has_the_counts()
    ensures procedures { (n : ℕ) → length (generated_theory n).procedures ≡ n }
    ensures steps { (n : ℕ) → step_count (generated_theory n).procedures ≡ 8 * n }
{}
