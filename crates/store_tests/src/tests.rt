mod of_checkpoint;
mod of_reading;
mod of_recovery;
mod of_sites;
mod of_sites_command;
mod of_slot_disk;
mod worked_saves;
