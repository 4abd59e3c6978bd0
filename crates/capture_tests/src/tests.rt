mod blocks;
mod fakes;
mod formats;
mod frames;
mod fronts;
mod made;
mod records;
