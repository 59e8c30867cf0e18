// Definitions only: calendars as bytes, and the outcomes of the calls about days and hours. See specs/.
#![tactic(auto)]
