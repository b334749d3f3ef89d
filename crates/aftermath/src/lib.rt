// Aftermath: what follows a battle. Losses, advances, their close, and how its stages pass on.
#![tactic(auto)]
