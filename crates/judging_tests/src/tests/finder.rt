mod all_faults;
mod by_rules;
mod telling;
mod unread;
mod warm;
