mod of_command_words;
mod of_exact_audit;
mod of_hhh_report;
mod of_report_text;
mod of_session_watch;
mod of_watch_rules;
mod worked_lines;
