#![tactic(auto)]
// Intel's records as a source of steps: where their bytes lie, and which line stops a reading. Definitions and laws alone; no code.
