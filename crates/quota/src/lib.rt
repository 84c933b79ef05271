// What is asked after draining: the quotas of the rows that wait (14 to 16), and room for those that were logged (17, 18).
#![tactic(auto)]

mod authors; // an author above its limit
mod room; // the authors of the watermarks
pub mod raw; // the two tests
