// Two firms on one table: what a party can see of the other's calls, of tables and of lent bytes (specs/TwoRuns, specs/LentRuns). There is no code here.
#![tactic(auto)]
