// One run of damage to a rearranged group leaves every word readable. A theorem for all q, m and W together; no function.
#![tactic(auto)]
