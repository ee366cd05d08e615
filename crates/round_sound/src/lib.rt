// What a layout holds is a sound report, of no more rows than a layout may have records: that it is so.
#![tactic(auto)]
