// Lists by number, what their elements give one after the other, sums, and Boolean tests: definitions and laws that know no route.
#![tactic(auto)]
