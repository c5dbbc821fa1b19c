//! Programs that no command runs: those that the verifier refuses, on the interpreter; and each
//! prefix and each change of one byte of three programs, to count those that it accepts.

mod damage;
mod given;
mod interpreted;
