// Two-phase locking in general: definitions and theorems only, in specs/.
#![tactic(auto)]
