// The tests, by what they are about.
mod desk;
mod faults;
mod random_reports;
mod report_rules;
mod rounds;
mod runs;
mod truth;
